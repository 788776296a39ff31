//! The ends of write-outs and loads, and what is sealed and opened between a start and its commit.

ghost use Rattle.machine_laws.specs.inner.Notes.{IsDidEvent};
ghost use Rattle.machine_laws.specs.inner.State.{making_of};
ghost use Rattle.std.specs.Prelude.{◌≡◌, ◌∷◌, ◌++◌, [], true, Some, length, List, is_some};
ghost use Rattle.std.specs.Option.{IsSomeAnd};
ghost use Rattle.sgx_rules.specs.declared.entries.Entry.{Entry};
ghost use Rattle.sgx_rules.specs.Frames.{page_there};
ghost use Rattle.sgx_rules.specs.Table.{is_loading};
ghost use Rattle.machine_laws.specs.inner.Columns.{HasAllVersions};
ghost use Rattle.sgx_types.specs.Making.{Making};
ghost use Rattle.seal_record.specs.Records.{Given, Made, Unforged};
ghost use Rattle.machine_laws.specs.inner.Histories.{StandsWithAllRules, given_out, looked_at, BringsArrayIn, BringsIn, GivesArray};
ghost use Rattle.sgx_machine.specs.inner.Parts.{start_of, state_of};
ghost use Rattle.machine_laws.specs.inner.Shape.{ShapeWithRules, FitsApart};
ghost use Rattle.machine_laws.specs.inner.Steps.{CanEnd, HasBytesOf, HasSecsBytes, IsComingHeader, IsDigest, IsReloaded, IsWrittenOut};
ghost use Rattle.machine_laws.specs.inner.Steps.{SealsPage};
ghost use Rattle.machine_laws.specs.inner.Steps.{header_in};
ghost use Rattle.page_bytes.specs.inner.Bytes.{HasRoom};
ghost use Rattle.evict_reload.specs.inner.Sights.{is_kind_own};

use crate::apply::{done, refused};
use crate::machine::Machine;
use crate::starts::Start;
use epcm_entry::entry_view::EntryView;
use evict_reload::reload::{eld_commit, header_in};
use evict_reload::write_out::ewb_commit;
use page_bytes::bytes::{put_secs, put_slots};
use seal_record::seal::{SealWork, SealedWork, seal};
use seal_record::unseal::{UnsealWork, UnsealedWork, unseal};
use sgx_rules::entries::{Action, Answer, Entry};
use sgx_types::names::{Actor, Frame, Kind};
use sgx_types::record::{Header, Record};

// The second halves of EWB and ELDU. What is sealed or opened between the halves is not trusted: a work of another input is
// done anew, in its own buffers.
impl Machine {
    /// Fills in what the started EWB of a frame seals: the machine's key, the version that was drawn, and the header and
    /// the bytes of the page.
    pub fn seal_input(&self, frame: Frame, work: &mut SealWork)
        requires { (state_of self.now).is_sealing frame.0 ≡ true }
        ensures { SealsPage (state_of self.now) frame.0 work.new.key work.new.version work.new.header work.new.plain.items }
    {
        let key = self.key;
        let start = self.start(frame);
        let header = self.header(frame);
        work.key = key;
        work.version = start.version;
        work.header = header;
        self.write_bytes(frame, &mut work.plain);
    }

    /// Fills in under what the started ELDU of a frame opens its record: the machine's key, and the version that was found.
    pub fn unseal_input(&self, frame: Frame, work: &mut UnsealWork)
        requires { is_loading ((state_of self.now).content frame.0) ≡ true }
        ensures key { work.new.key ≡ (state_of self.now).key }
        ensures version { IsSomeAnd ((state_of self.now).start frame.0) (λ start. work.new.version ≡ start.version) }
        ensures rec { work.new.rec ≡ work.old.rec }
    {
        let key = self.key;
        let start = self.start(frame);
        work.key = key;
        work.version = start.version;
    }

    /// The header that the record of the page has for which a frame waits.
    pub fn coming_header(&self, frame: Frame) -> Header
        requires { is_loading ((state_of self.now).content frame.0) ≡ true }
        ensures { IsComingHeader (state_of self.now) frame.0 result }
    {
        let secs = &self.secs;
        let page = self.start(frame).loads.unwrap();
        header_in(secs, page).unwrap()
    }

    /// The commit of EWB (Intel SDM volume 3D): the page is out of its frame, its version stands in the slot of the start,
    /// and its record is given out. Never refused.
    pub fn ewb_commit(&mut self, actor: Actor, frame: Frame, work: SealedWork) -> (Entry, Record)
        requires { (state_of self.old).is_sealing frame.0 ≡ true }
        ensures step { IsWrittenOut (state_of self.old) actor frame result.0 result.1 (state_of self.new) }
        ensures shape { (making : Making) (past : List Entry) → ShapeWithRules making (state_of self.old) past
            → ShapeWithRules making (state_of self.new) (result.0 ∷ past) }
        ensures fits { (making : Making) (past : List Entry) → ShapeWithRules making (state_of self.old) past →
            FitsApart making.frames past → FitsApart making.frames (result.0 ∷ past) }
        // The slots of version array pages have the versions that the entries say, whatever records were brought,
        ensures arrays { (making : Making) (past : List Entry) → ShapeWithRules making (state_of self.old) past →
            HasAllVersions (state_of self.old) past → HasAllVersions (state_of self.new) (result.0 ∷ past) }
        // and the record of such a page is the one of its slots.
        ensures array_record { (making : Making) (past : List Entry) → ShapeWithRules making (state_of self.old) past →
            HasAllVersions (state_of self.old) past → GivesArray making.key past result.0.event result.1 }
        ensures history { (making : Making) (past : List Entry) (records : List Made)
            → StandsWithAllRules making (state_of self.old) past records →
            StandsWithAllRules making (state_of self.new) (result.0 ∷ past) (records ++ given_out result.0.event result.1) }
        ensures making { making_of (state_of self.new) ≡ making_of (state_of self.old) }
        ensures cpus { length self.new.cpus ≡ length self.old.cpus }
    {
        let work = self.sealed(frame, work);
        let start = self.start(frame);
        let page = ewb_commit(
            &mut self.epc,
            &mut self.secs,
            &mut self.va,
            start.at,
            frame,
            &work,
        );
        self.starts[frame.0 as usize] = None;
        let rec = work.rec;
        let tag = rec.tag;
        let version = start.version;
        let answer = Answer::Moved { page, version, tag };
        (done(actor, Action::Ewb { frame }, answer), rec)
    }

    /// The commit of ELDU (Intel SDM volume 3D): the page is back in the frame of the start with the bytes of its record,
    /// and the slot is empty.
    ///
    /// Refused, in this order, as MacFail where the record's tag is not the one of its header and cipher under the
    /// version that the start found, with both tags; and as BadHeader where its header is not the page's, with the record's
    /// numbers. After either the frame is free, and the slot keeps its version.
    ///
    /// Where the row allows the record of a version array page, no frame holds the page.
    pub fn eld_commit(&mut self, actor: Actor, frame: Frame, work: UnsealedWork) -> Entry
        requires loading { is_loading ((state_of self.old).content frame.0) ≡ true }
        requires can_end { CanEnd (state_of self.old) frame.0 work.rec }
        ensures step { IsReloaded (state_of self.old) actor frame work.rec result (state_of self.new) }
        ensures shape { (making : Making) (past : List Entry) → ShapeWithRules making (state_of self.old) past
            → ShapeWithRules making (state_of self.new) (result ∷ past) }
        ensures fits { (making : Making) (past : List Entry) → ShapeWithRules making (state_of self.old) past →
            FitsApart making.frames past → FitsApart making.frames (result ∷ past) }
        // The slots of version array pages have the versions that the entries say, where the record of such a page brings those with which
        // it last went out.
        ensures arrays { (making : Making) (past : List Entry) → ShapeWithRules making (state_of self.old) past →
            HasAllVersions (state_of self.old) past →
            (IsDidEvent result.event → BringsArrayIn making.key past (state_of self.old) frame.0 work.rec) →
            HasAllVersions (state_of self.new) (result ∷ past) }
        ensures history { (making : Making) (past : List Entry) (records : List Made) (given : List Given) →
            StandsWithAllRules making (state_of self.old) past records →
            Unforged making.key records (given ++ looked_at (state_of self.old) frame.0 records work.rec) →
            StandsWithAllRules making (state_of self.new) (result ∷ past) records }
        ensures back { (making : Making) (past : List Entry) (records : List Made) →
            StandsWithAllRules making (state_of self.old) past records →
            (IsDidEvent result.event → BringsIn making.key past (state_of self.old) frame.0 work.rec) →
            StandsWithAllRules making (state_of self.new) (result ∷ past) records }
        ensures making { making_of (state_of self.new) ≡ making_of (state_of self.old) }
        ensures cpus { length self.new.cpus ≡ length self.old.cpus }
    {
        let work = self.opened(frame, work);
        let start = self.start(frame);
        let page = start.loads.unwrap();
        let ended = eld_commit(
            &mut self.epc,
            &mut self.secs,
            &mut self.va,
            start.at,
            frame,
            page,
            &work,
        );
        self.starts[frame.0 as usize] = None;
        let action = Action::Eld { frame };
        match ended {
            Ok(()) => {
                let tag = work.rec.tag;
                let version = start.version;
                done(actor, action, Answer::Moved { page, version, tag })
            }
            Err(refusal) => refused(actor, action, refusal),
        }
    }

    /// The start of a frame that is open: of the write-out of its page, or of a load into it. None where none is.
    pub fn open_start(&self, frame: Frame) -> Option<Start>
        ensures { start_of result ≡ (state_of self.now).start frame.0 }
    {
        match self.starts.get(frame.0 as usize) {
            Some(start) => *start,
            None => None,
        }
    }

    // The open start of a frame.
    fn start(&self, frame: Frame) -> Start
        requires { is_some ((state_of self.now).start frame.0) ≡ true }
        ensures { (state_of self.now).start frame.0 ≡ start_of (Some result) }
    {
        self.starts[frame.0 as usize].unwrap()
    }

    // The header of what starts to go out of a frame.
    fn header(&self, frame: Frame) -> Header
        requires { (state_of self.now).is_sealing frame.0 ≡ true }
        ensures { IsSomeAnd (page_there ((state_of self.now).content frame.0)) (λ page. header_in (state_of self.now) page ≡ Some result) }
    {
        let EntryView::Valid { page, .. } = self.epc.entry(frame) else {
            unreachable!();
        };
        header_in(&self.secs, page).unwrap()
    }

    // Writes the 4096 bytes of what starts to go out of a frame, as they are sealed: of a TCS or REG page those in its frame, of a version
    // array page its slots, and of a SECS what the machine knows of its enclave.
    fn write_bytes(&self, frame: Frame, onto: &mut Vec<u8>)
        requires leaving { (state_of self.now).is_sealing frame.0 ≡ true }
        requires page { length onto.old.items ≡ 4096 }
        ensures bytes { HasBytesOf (state_of self.now) frame.0 ((state_of self.now).content frame.0) onto.new.items }
        ensures page { length onto.new.items ≡ 4096 }
    {
        let EntryView::Valid { page, kind, .. } = self.epc.entry(frame) else {
            unreachable!();
        };
        match kind {
            Kind::Tcs | Kind::Reg => onto.copy_from_slice(self.epc.bytes(frame)),
            Kind::Va => {
                onto.clear();
                put_slots(&self.va, frame, onto);
            }
            Kind::Secs => {
                onto.clear();
                self.put_secs(page.enclave, onto);
            }
        }
    }

    // Puts the bytes of the SECS of an enclave.
    fn put_secs(&self, enclave: u16, onto: &mut Vec<u8>)
        requires made { is_some ((state_of self.now).enclaves enclave) ≡ true }
        requires room { HasRoom 4096 onto.old }
        requires empty { onto.old.items ≡ [] }
        ensures bytes { HasSecsBytes (state_of self.now) enclave onto.new.items }
        ensures page { length onto.new.items ≡ 4096 }
    {
        let secs = self.secs.get(enclave).unwrap();
        let digest = self.digest(enclave, secs.is_init());
        put_secs(secs.base(), secs.size(), &digest, onto);
    }

    // The digest of an enclave's measurement where it is initialised, zeros before.
    fn digest(&self, enclave: u16, is_init: bool) -> [u8; 32]
        requires { is_some ((state_of self.now).enclaves enclave) ≡ true }
        ensures { IsDigest is_init ((state_of self.now).measure enclave) result }
    {
        if !is_init {
            return [0; 32];
        }
        self.measures[usize::from(enclave)]
            .as_ref()
            .unwrap()
            .finish()
    }

    // The sealed work of the started EWB of a frame.
    fn sealed(&self, frame: Frame, work: SealedWork) -> SealedWork
        requires { (state_of self.now).is_sealing frame.0 ≡ true }
        ensures { SealsPage (state_of self.now) frame.0 result.key result.version result.rec.header result.plain.items }
    {
        if self.is_sealed(frame, &work) {
            return work;
        }
        let key = self.key;
        let header = self.header(frame);
        let SealedWork { plain, rec, .. } = work;
        let mut anew = SealWork {
            key,
            version: 0,
            header,
            plain,
            space: rec.cipher,
        };
        self.seal_input(frame, &mut anew);
        seal(anew)
    }

    // Whether a work is that of the started EWB of a frame. What was sealed of a SECS or of a version array page is always sealed anew: its
    // bytes stand nowhere to be compared.
    fn is_sealed(&self, frame: Frame, work: &SealedWork) -> bool
        requires { (state_of self.now).is_sealing frame.0 ≡ true }
        ensures { result ≡ true → SealsPage (state_of self.now) frame.0 work.now.key work.now.version work.now.rec.header
            work.now.plain.items }
    {
        let key = self.key;
        let start = self.start(frame);
        let header = self.header(frame);
        let EntryView::Valid { kind, .. } = self.epc.entry(frame) else {
            unreachable!();
        };
        if !is_own(kind) {
            return false;
        }
        work.is_of(key, start.version, header, self.epc.bytes(frame).as_slice())
    }

    // The opened work of the started ELDU of a frame.
    fn opened(&self, frame: Frame, work: UnsealedWork) -> UnsealedWork
        requires { is_loading ((state_of self.now).content frame.0) ≡ true }
        ensures key { result.key ≡ (state_of self.now).key }
        ensures version { IsSomeAnd ((state_of self.now).start frame.0) (λ start. result.version ≡ start.version) }
        ensures rec { result.rec ≡ work.rec }
    {
        let key = self.key;
        let start = self.start(frame);
        if work.key == key && work.version == start.version {
            return work;
        }
        let UnsealedWork { rec, plain, .. } = work;
        let mut anew = UnsealWork {
            key,
            version: start.version,
            rec,
            space: plain,
        };
        self.unseal_input(frame, &mut anew);
        unseal(anew)
    }
}

// A TCS or a REG page.
fn is_own(kind: Kind) -> bool
    ensures { result ≡ is_kind_own kind }
{
    matches!(kind, Kind::Tcs | Kind::Reg)
}

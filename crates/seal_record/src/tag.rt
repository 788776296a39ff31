//! The tag of a record.

ghost use Rattle.std.specs.Prelude.{◌≡◌};
ghost use Rattle.seal_record.specs.Cipher.{tag};

use sgx_types::record::Header;
use sha2::{Digest, Sha256};

/// The tag of a record: SHA-256 of the key, the version, the header and the cipher, numbers low byte first (this
/// project's own).
pub(crate) fn tag_of(key: &[u8; 32], version: u64, header: Header, cipher: &[u8]) -> [u8; 32]
    ensures { result ≡ tag key.now version header cipher.now }
{
    let mut hasher = Sha256::new();
    hasher.update(key);
    hasher.update(version.to_le_bytes());
    hasher.update(header.enclave.to_le_bytes());
    hasher.update(header.address.to_le_bytes());
    hasher.update(header.flags.to_le_bytes());
    hasher.update(cipher);
    hasher.finalize()
}

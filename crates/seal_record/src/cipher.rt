//! The cipher of a page, which is its own inverse.

ghost use Rattle.std.specs.Prelude.{◌≡◌, ℕ, List, length};
ghost use Rattle.seal_record.specs.Cipher.{keystream, xor_bytes, cipher};

use sha2::{Digest, Sha256};

/// Deciphering is enciphering again: under one key and version the cipher of a page's cipher is the page.
pub fn cipher_of_cipher()
    ensures { (key : List ℕ) (version : ℕ) (plain : List ℕ) → length plain ≡ 4096
        → cipher key version (cipher key version plain) ≡ plain }
{}

/// Enciphers or deciphers a page's 4096 bytes in their place, by the exclusive or with 128 blocks of 32 bytes, of which
/// each is the SHA-256 of the key, the version and its number, low byte first (this project's own, not AES-GCM).
pub(crate) fn encipher(key: &[u8; 32], version: u64, page: &mut [u8])
    requires { length page.old ≡ 4096 }
    ensures { page.new ≡ cipher key.now version page.old }
{
    for index in 0..128 {
        let block = keystream(key, version, index as u64);
        let at = 32 * index;
        xor_block(&mut page[at..at + 32], &block);
    }
}

fn keystream(key: &[u8; 32], version: u64, index: u64) -> [u8; 32]
    ensures { result ≡ keystream key.now version index }
{
    let mut hasher = Sha256::new();
    hasher.update(key);
    hasher.update(version.to_le_bytes());
    hasher.update(index.to_le_bytes());
    hasher.finalize()
}

fn xor_block(bytes: &mut [u8], block: &[u8; 32])
    requires { length bytes.old ≡ 32 }
    ensures { bytes.new ≡ xor_bytes bytes.old block.now }
{
    for i in 0..32 {
        bytes[i] ^= block[i];
    }
}

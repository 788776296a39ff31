//! Pages by their numbers.

use sgx_types::names::{Memory, Page};
use std::alloc::Global;

// The pages of two enclaves in turn: 0 and 1 are the first pages of enclaves 1 and 2.
pub fn page(n: u32) -> Page {
    Page {
        enclave: 1 + (n % 2) as u16,
        number: n / 2,
    }
}

pub fn pages(alloc: Global, numbers: &[u32]) -> Result<Vec<Page>, Memory> {
    let mut pages = Vec::new(alloc);
    for n in numbers {
        pages.push(page(*n))?;
    }
    Ok(pages)
}

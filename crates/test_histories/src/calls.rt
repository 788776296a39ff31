//! What a store was asked and what it answered, as text: a line for each call.

use backing_store::calls::{GetAnswer, StoreCall};
use sgx_types::names::{Memory, Page};
use std::alloc::Global;
use text_words::words::Word::{Decimal, Enclave, Name};
use text_words::words::{Word, push_word, push_words};

/// The lines of these calls.
pub fn print_calls(alloc: Global, calls: &[StoreCall]) -> Result<Vec<u8>, Memory> {
    let mut text = Vec::new(alloc);
    for call in calls {
        print_call(call, &mut text)?;
    }
    Ok(text)
}

fn print_call(call: &StoreCall, text: &mut Vec<u8>) -> Result<(), Memory> {
    match *call {
        StoreCall::Room { page, failed } => print_words(
            "room",
            page,
            &[Name(ending(failed))],
            text,
        ),
        StoreCall::Put { page, failed } => print_words("put", page, &[Name(ending(failed))], text),
        StoreCall::Got { page, answer } => print_got(page, answer, text),
    }
}

fn ending(failed: bool) -> &'static str {
    if failed { "failed" } else { "ok" }
}

// The record of a get is told by its number among all that were put.
fn print_got(page: Page, answer: GetAnswer, text: &mut Vec<u8>) -> Result<(), Memory> {
    match answer {
        GetAnswer::Failed => print_words("got", page, &[Name("failed")], text),
        GetAnswer::Nothing => print_words("got", page, &[Name("none")], text),
        GetAnswer::Given { put, flipped: None } => {
            print_words("got", page, &[Name("given"), Decimal(put)], text)
        }
        GetAnswer::Given {
            put,
            flipped: Some(bit),
        } => {
            let words = [
                Name("given"),
                Decimal(put),
                Name("flipped"),
                Decimal(u64::from(bit)),
            ];
            print_words("got", page, &words, text)
        }
    }
}

fn print_words(
    call: &'static str,
    page: Page,
    words: &[Word],
    text: &mut Vec<u8>,
) -> Result<(), Memory> {
    push_word(Name(call), text)?;
    push_words(&page_words(page), text)?;
    push_words(words, text)?;
    text.push(b'\n')?;
    Ok(())
}

// A page by its enclave and its number, or as a SECS or a version array page.
fn page_words(page: Page) -> [Word; 2] {
    let enclave = Enclave(u64::from(page.enclave));
    let number = Decimal(u64::from(page.number));
    match page {
        Page { enclave: 0, .. } => [Name("va"), number],
        Page {
            number: u32::MAX,
            ..
        } => [enclave, Name("secs")],
        _ => [enclave, number],
    }
}

//! What a refused request for memory leaves. In an ordinary run none is refused: `tests/sweep` runs each of these tests
//! with its first request refused, its second, and so on, and counts the lines that they print.

use crate::books::{are, chain_at, facts_told, told};
use ld_book::Book;
use std::io::Print;
use std::process::Abort;
use std::test::Fail;

// Records a chain of the two orders. If that is refused, the book is as it was, and the same call then succeeds.
fn record_anyway(rt: &(impl Abort + Print), book: &mut Book, place: usize) -> Result<(), Fail> {
    let before = (told(&*book), facts_told(&*book), book.is_clean());
    if let Err(fault) = book.record(0, chain_at(place).ok_or("a chain")?) {
        println!(rt; "refused: {}", fault.code())?;
        assert_eq!(rt; fault.code(), "B2 Memory");
        assert!(rt; (told(&*book), facts_told(&*book), book.is_clean()) == before);
        book.record(0, chain_at(place).ok_or("a chain")?)?;
    }
    Ok(())
}

// The chains are recorded again and again, so that new ones and known ones meet a refusal.
#[test]
fn want_of_memory_for_a_book_and_its_chains(rt: HostRuntime) -> Result<(), Fail> {
    let mut book = match Book::new(rt.alloc(), 2, 100) {
        Ok(book) => book,
        Err(fault) => {
            println!(&rt; "refused: {}", fault.code())?;
            assert_eq!(rt; fault.code(), "B2 Memory");
            Book::new(rt.alloc(), 2, 100)?
        }
    };
    for place in 0..50usize {
        record_anyway(&rt, &mut book, place % 4)?;
    }
    assert!(rt; told(&book) == (are(50, 50, 0, 2), 4, 50));
    Ok(())
}

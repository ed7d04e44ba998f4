//! The facts of a completed run, if the book and the workers agree on them.

ghost use Rattle.std.specs.Prelude.{◌≡◌, ◌↔◌, IfErr, IfOk, IsOk};
ghost use Rattle.ld_run.specs.Settling.{Settles};

use crate::fault::RunFault;
use ld_book::Book;
use ld_facts::Facts;
use ld_parts::Settled;

/// The facts of the book, if they are those of the tallies. Takes no memory [this project's own].
///
/// N3 exactly if the book's keys or facts aren't those of the tallies. The book is consumed in every case.
pub fn settle(book: Book, tallies: &Facts) -> Result<Settled, RunFault>
    ensures exact { IsOk result ↔ Settles book tallies.now }
    ensures facts { IfOk result (λ settled. settled ≡ tallies.now) }
    ensures refused { IfErr result (λ fault. fault ≡ RunFault.Unsettled) }
{
    let graph = book.into_graph();
    if graph.facts().same(tallies) {
        Ok(Settled::whole(graph))
    } else {
        Err(RunFault::Unsettled)
    }
}

// What nodes and gateways count.
ghost use Rattle.std.specs.Prelude.{◌≡◌, IfOk, map};
ghost use Rattle.gateway_book.specs.Book.{value_of};
ghost use Rattle.gateway_book.specs.Calls.{gateway_counts_of};
ghost use Rattle.loop_run.specs.Ending.{AreAllFirm};
ghost use Rattle.loop_run.specs.Finishing.{AreAlike, shown};
ghost use Rattle.node_core.specs.Counting.{counts_of};

use area_disk::QuietArea;
use gateway_answer::laws::a_history_filed_its_parts;
use gateway_book::{Book, GatewayCounts, ItemsFault, count_records};
use gw_base::NoMemory;
use node_core::{Node, NodeCounts};
use std::alloc::Global;

/// What each node counts.
pub(crate) fn node_counts(alloc: Global, nodes: &[Node]) -> Result<Vec<NodeCounts>, NoMemory>
    ensures { IfOk result (λ counts. counts.items ≡ map counts_of nodes.now) }
{
    let mut counts = Vec::with_capacity(alloc, nodes.len())?;
    for node in nodes {
        counts.push(node.counts())?;
    }
    Ok(counts)
}

/// What each gateway counts.
pub(crate) fn gateway_counts(
    alloc: Global,
    books: &mut [Book<QuietArea>],
) -> Result<Vec<GatewayCounts>, NoMemory>
    requires { AreAllFirm books.old }
    ensures counts { IfOk result (λ all. all.items ≡ map (λ book. gateway_counts_of (value_of book)) books.old) }
    ensures same { AreAlike books.old books.new }
{
    let mut counts = Vec::with_capacity(alloc, books.len())?;
    for place in 0..books.len() {
        let one = book_counts(alloc, &mut books[place])?;
        counts.push(one)?;
    }
    Ok(counts)
}

fn book_counts(alloc: Global, book: &mut Book<QuietArea>) -> Result<GatewayCounts, NoMemory>
    ensures counts { IfOk result (λ counts. counts ≡ gateway_counts_of (value_of book.old)) }
    ensures same { shown book.new ≡ shown book.old }
{
    a_history_filed_its_parts();
    let counts = book.counts();
    let records = match count_records(alloc, book) {
        Ok(records) => records,
        Err(ItemsFault::NoMemory) => return Err(NoMemory),
        // The area never fails.
        Err(ItemsFault::Device) => unreachable!(),
    };
    Ok(counts.gateway_counts(records))
}

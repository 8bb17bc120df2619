ghost use Rattle.std.specs.Prelude.{◌≡◌, []};

use area_disk::QuietArea;
use gateway_book::Book;
use node_core::Node;
use std::alloc::Global;

/// What a loop ran: the books of its gateways and its nodes, in their order. Both lists are empty where a link failed
/// or there was no memory for the loop, and where there was none.
#[derive(Drop)]
pub struct Looped {
    pub books: Vec<Book<QuietArea>>,
    pub nodes: Vec<Node>,
}

impl Looped {
    /// What there is where there was no loop, or where nothing of it is handed out. It takes no memory.
    pub fn none(alloc: Global) -> Looped
        ensures { (result.books.items ≡ []) × (result.nodes.items ≡ []) }
    {
        Looped {
            books: Vec::new(alloc),
            nodes: Vec::new(alloc),
        }
    }
}

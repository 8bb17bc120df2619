//! Laws of the division into files. Each holds for all items, and stands on a function that does nothing.

ghost use Rattle.std.specs.Prelude.{◌≡◌, ◌++◌, List};
ghost use Rattle.std.specs.List.{flat_map};
ghost use Rattle.file_rotate.specs.Cutting.{answers, file_after, file_of, item_cuts, item_file, marked};
ghost use Rattle.file_rotate.specs.Division.{Division, IsDivision, cuts_at, divided_from, division_of, goes_on, run_after};
ghost use Rattle.file_rotate.specs.Items.{Filed, Item, records_of};
ghost use Rattle.file_rotate.specs.declared.limits.Limits.{Limits};

/// Over any items, a cutter's answers mark the division into files.
pub fn cutter_divides<P>()
    ensures { (limits : Limits) (items : List (Item P)) → marked (answers limits items) ≡ division_of limits items }
{}

/// After the records of an open run, a cutter answers to an item where files are closed there, and
/// keeps what is kept of the run after it.
pub fn cutter_keeps_the_run<P>()
    ensures cuts { (limits : Limits) (run : List (Filed P)) (item : Item P)
        → item_cuts limits (file_of run) item ≡ cuts_at limits run item }
    ensures kept { (limits : Limits) (run : List (Filed P)) (item : Item P)
        → item_file limits (file_of run) item ≡ file_of (run_after (cuts_at limits run item) run item) }
{}

/// After any items, a cutter keeps what is kept of the run that their division leaves open.
pub fn cutter_keeps_the_open_run<P>()
    ensures { (limits : Limits) (run : List (Filed P)) (items : List (Item P))
        → file_after limits (file_of run) items ≡ file_of (divided_from limits run items).left_open }
{}

/// The division of items and of others that come after them goes on from that of the first: what was closed stays, and
/// the run that was left open is divided with the others.
pub fn division_goes_on<P>()
    ensures { (limits : Limits) (run : List (Filed P)) (before after : List (Item P))
        → divided_from limits run (before ++ after) ≡ goes_on limits (divided_from limits run before) after }
{}

/// The division closes each file where it first ends, and is the only one that does. It has each
/// record once, in order.
pub fn division_closes_where_files_end<P>()
    ensures ends { (limits : Limits) (items : List (Item P)) → IsDivision limits items (division_of limits items) }
    ensures only { (limits : Limits) (items : List (Item P)) (division : Division P)
        → IsDivision limits items division → division ≡ division_of limits items }
    ensures records { (limits : Limits) (items : List (Item P)) (division : Division P)
        → IsDivision limits items division
        → flat_map (λ closed. closed.run) division.closed ++ division.left_open ≡ records_of items }
{}

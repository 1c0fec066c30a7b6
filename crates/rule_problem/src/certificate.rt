use key_table::{Atom, Payment, Seq};

/// A step of a certificate or a trace. `Split` names an atom of the certificate or trace by its number, what follows it
/// stands where that atom is true, and what follows that where it is false. The reasons why no payment is left are `Void`
/// with the number of an atom whose slot has no option left, `Want` and `Bar` with a number in the problem, and `Goal`.
/// `Todo` is a gap.
#[derive(Clone, Copy, Debug, PartialEq, Eq)]
pub enum Item {
    Split(u32),
    Void(u32),
    Want(u32),
    Bar(u32),
    Goal,
    Todo,
}

/// Items in preorder, with the atoms that they name by number.
#[derive(Debug, Drop)]
pub struct Certificate {
    pub atoms: Seq<Atom>,
    pub items: Seq<Item>,
}

/// What a search that spent its budget had done: items in preorder, with the atoms that they name by number, and a `Todo`
/// for each part that is missing.
#[derive(Debug, Drop)]
pub struct Trace {
    pub atoms: Seq<Atom>,
    pub items: Seq<Item>,
}

/// What a search answers: a payment that satisfies the problem, a certificate that none does, or a trace of its budget.
#[derive(Debug, Drop)]
pub enum Report {
    Reach(Payment),
    Never(Certificate),
    Spent(Trace),
}

ghost use Rattle.std.specs.Prelude.{◌<◌};

/// What stands before, between and after the children.
#[derive(Clone, Copy)]
pub(crate) struct Pieces {
    pub(crate) arity: usize,
    pub(crate) front: &'static str,
    pub(crate) second: &'static str,
    pub(crate) third: &'static str,
    pub(crate) close: &'static str,
    ghost some: { 0 < arity },
    ghost few: { arity < 4 },
}

impl Pieces {
    ghost use Rattle.std.specs.Prelude.{◌≡◌, ◌≤◌};
    ghost use Rattle.sql_tree.specs.private.PiecesView.{piece_at, pieces_in};

    /// The piece after so many children.
    pub(crate) fn after(&self, done: usize) -> &'static str
        requires some { 0 < done }
        requires few { done ≤ self.now.arity }
        ensures { result.now ≡ piece_at (pieces_in self.now) done }
    {
        if done == self.arity {
            self.close
        } else if done == 1 {
            self.second
        } else {
            self.third
        }
    }
}

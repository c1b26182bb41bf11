// What may be wrong with a certificate.
ghost use Rattle.std.specs.Prelude.{◌≡◌};
ghost use Rattle.tetri_cert.specs.Words.{tree_words};

/// Which test a certificate fails.
#[derive(Clone, Copy, Debug, PartialEq, Eq)]
pub enum TreeWhy {
    /// A tree stands where none may, or `tops` has other numbers than 0 and 0. `bound` never answers this.
    Kind,
    /// Its marks are not one tree in preorder.
    Shape,
    /// A split's column is not in the program.
    Column,
    /// A split does not leave whole numbers of its column on both sides.
    At,
    /// A weight's row is not in the program.
    Row,
    /// A weight is below 0.
    Negative,
    /// `q` is below 0, or `q` is 0 and the weighed number is not below 0.
    Denominator,
    /// A point names a column outside the program, does not lie in the node's region, breaks a row, or has another objective than its worth.
    Point,
}

impl TreeWhy {
    /// The test in a word.
    pub fn words(self) -> &'static str
        ensures { result.now ≡ tree_words self }
    {
        match self {
            TreeWhy::Kind => "kind",
            TreeWhy::Shape => "shape",
            TreeWhy::Column => "column",
            TreeWhy::At => "at",
            TreeWhy::Row => "row",
            TreeWhy::Negative => "negative",
            TreeWhy::Denominator => "denominator",
            TreeWhy::Point => "point",
        }
    }
}

/// The first fault of a tree, in preorder from node 0. `Past` names the first column at which a number of the weighing leaves the
/// range, and 0 also where that is in the sum over the rows.
#[derive(Clone, Copy, Debug, PartialEq, Eq)]
pub enum TreeFault {
    Bad { node: u64, why: TreeWhy },
    Past { node: u64, column: u32 },
    NoMemory,
}

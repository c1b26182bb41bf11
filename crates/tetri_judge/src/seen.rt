// What was seen of a certificate.
use tetri_cert::TreeFault;

/// What was seen of a certificate, in place of all its marks: the numbers of its `tops` line, or what a walk over its tree answers,
/// with the number of its nodes other than rests. Where no tree may stand in the instance, any answer and any number will do.
#[derive(Clone, Copy, Debug, PartialEq, Eq)]
pub enum Seen {
    Tops {
        columns: u64,
        rows: u64,
    },
    Tree {
        answer: Result<u64, TreeFault>,
        nodes: u64,
    },
}

// What the walk of expressions writes down: columns, rows by their two sides, and counts of nodes.
use tetri_strl::Leaf;

// So many times a column.
#[derive(Clone, Copy, Debug)]
pub struct Multiple {
    pub column: u32,
    pub by: u64,
}

// A column that counts the nodes which a leaf gets of one partition.
#[derive(Clone, Copy)]
pub struct Holding {
    pub column: u32,
    pub job: u32,
    pub leaf: Leaf,
    pub part: u32,
}

// The one sum is at most the other and a number.
#[derive(Drop)]
pub struct Inequality {
    pub most: Vec<Multiple>,
    pub under: Vec<Multiple>,
    pub plus: u64,
}

// The upper bounds of the columns, each lower bound being 0, the rows, and the columns that count
// nodes.
#[derive(Drop)]
pub struct Outline {
    pub uppers: Vec<u64>,
    pub rows: Vec<Inequality>,
    pub holdings: Vec<Holding>,
}

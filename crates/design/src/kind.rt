// The kinds of variables and of cells, by their bytes.

#[derive(Clone, Copy, Debug, PartialEq, Eq)]
pub enum Kind {
    Boolean = 0,
    Integer = 1,
    External = 2,
}

#[derive(Clone, Copy, Debug, PartialEq, Eq)]
pub enum CellKind {
    Normal = 0,
    Invalid = 1,
}

// The numbers of a design that its walkers go by, passed by value.
ghost use Rattle.design.specs.Answers.{shape_of};
ghost use Rattle.std.specs.Prelude.{◌≡◌, ◌≤◌};
ghost use Rattle.design.specs.Limits.{max_variables, max_matrices, max_slots};
ghost use Rattle.design.specs.State.{slot_count};

// Variables and matrices; normal cells, externals and state bits. While CHECK reads, only the first two are known, and the others are 0.
#[derive(Clone, Copy)]
pub struct Shape {
    pub variables: usize,
    pub matrices: usize,
    pub normals: usize,
    pub externals: usize,
    pub bits: usize,
}

// What the trailer counts.
#[derive(Clone, Copy)]
pub struct Counts {
    pub variables: usize,
    pub matrices: usize,
    pub cells: usize,
}

// Where the trailer and the number before it say that sections start. `constraint` is where the invariant ends: at the constraint, if the file has one, else where the items end.
#[derive(Clone, Copy)]
pub struct Offsets {
    pub matrices: usize,
    pub events: usize,
    pub cells: usize,
    pub invariant: usize,
    pub constraint: usize,
    pub constrained: bool,
}

// The shape that CHECK reads with.
pub fn shape_of(counts: Counts) -> Shape
    ensures { result ≡ shape_of counts }
{
    Shape {
        variables: counts.variables,
        matrices: counts.matrices,
        normals: 0,
        externals: 0,
        bits: 0,
    }
}

// How many slots a state has.
pub fn slot_count(shape: Shape) -> usize
    requires { (shape.variables ≤ max_variables) × (shape.matrices ≤ max_matrices) }
    ensures { (result ≡ slot_count shape) × (result ≤ max_slots) }
{
    shape.variables + shape.matrices + 1
}

// Pairs: two algebras side by side.
mod algebra;
mod printing;

// A pair of entries, or of guards.
#[derive(Clone, Copy, PartialEq, Eq, Debug)]
pub struct Both<X, Y> {
    pub first: X,
    pub second: Y,
}

// The algebra of pairs over two algebras.
#[derive(Clone, Copy, Drop)]
pub struct Pair<L, R> {
    pub first: L,
    pub second: R,
}

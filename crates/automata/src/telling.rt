// Words that tell two states apart.

// One step of such a word: an entry, and the states to which it leads from the two.
#[derive(Clone, Copy, PartialEq, Eq, Debug)]
pub struct WordStep<E> {
    pub sample: E,
    pub left: usize,
    pub right: usize,
}

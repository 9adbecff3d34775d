/// Whose call on an entry it is: a guest's, by the number of the entry.
#[derive(Clone, Copy, Debug, PartialEq, Eq, Drop)]
pub struct Owner {
    pub guest: u32,
    pub number: u32,
}

// What a day came to: how many calls it had, the reference price, how many places of the tape are used, and how many orders still stand.
#[derive(Clone, Copy, Debug, PartialEq, Eq)]
pub struct DayEnd {
    pub calls: usize,
    pub reference: u32,
    pub used: usize,
    pub standing: usize,
}

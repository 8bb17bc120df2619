/// Where octets lie in an area: the first of them, counted from 0, and how many there are.
#[derive(Clone, Copy, Debug)]
pub struct Place {
    pub at: u64,
    pub length: u32,
}

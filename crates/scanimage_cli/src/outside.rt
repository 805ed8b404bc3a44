/// What the program reads, and the hosts that it dials.
#[derive(Drop)]
pub struct Outside<I, H> {
    pub inputs: I,
    pub hosts: H,
}

/// The bytes of each struct, as C has them.
#[repr(C)]
#[derive(Clone, Copy, Drop)]
pub struct CLayout {
    pub device: usize,
    pub settings: usize,
    pub packet: usize,
    pub loss: usize,
    pub row: usize,
    pub event: usize,
}

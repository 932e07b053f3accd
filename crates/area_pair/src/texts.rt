// What an area stands for.
use disk_area::Bodies;
use ws_outside::Octets;

/// The texts of an open area: its image, and the bodies of the records behind it in their order.
#[derive(Debug, Drop)]
pub struct Texts {
    pub image: Octets,
    pub records: Bodies,
}

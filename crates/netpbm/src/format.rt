/// The three formats of a Netpbm file with a binary raster: `P4`, `P5` and `P6`.
#[derive(Clone, Copy, Debug, PartialEq, Eq)]
pub enum PnmFormat {
    /// Bits, 1 for black (pbm(5)).
    Pbm,
    /// Grays (pgm(5)).
    Pgm,
    /// Red, green and blue for each place (ppm(5)).
    Ppm,
}

/// What the header of a Netpbm file tells.
#[derive(Clone, Copy, Debug, PartialEq, Eq)]
pub struct Header {
    pub format: PnmFormat,
    /// The number of columns, 1 to 65,536.
    pub width: u32,
    /// The number of rows, 1 to 65,536.
    pub height: u32,
    /// The greatest sample, 1 to 65,535; 1 where the raster is bits.
    pub maxval: u32,
}

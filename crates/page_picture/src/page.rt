use std::marker::Model;

/// A page to be scanned: three samples of 16 bits (red, green, blue) at each place, 1 to 16,384 columns and rows, and
/// its dots per inch, 1 to 1,200. Contracts see a `PageView`.
#[derive(Drop)]
pub struct Page {
    width: u32,
    height: u32,
    dpi: u32,
    samples: Vec<u16>,
}

impl Model for Page {
    ghost use Rattle.page_picture.specs.Page.{PageView, IsPageView};

    ghost Value = { PageView };

    ghost view = { λ p. record { width = p.width; height = p.height; dpi = p.dpi; samples = p.samples.items } };

    ghost invariant = { λ p. IsPageView (record { width = p.width; height = p.height; dpi = p.dpi; samples = p.samples.items }) };
}

impl Page {
    ghost use Rattle.std.specs.Prelude.{◌≡◌, ◌<◌};

    /// The page of these samples, row by row from the top, three for each place.
    pub fn new(width: u32, height: u32, dpi: u32, samples: Vec<u16>) -> Self
        requires { IsShaped (record {
          width = width;
          height = height;
          dpi = dpi;
          samples = samples.items;
        }) }
        ensures { result
            ≡ record { width = width; height = height; dpi = dpi; samples = samples.items } }
    {
        Page {
            width,
            height,
            dpi,
            samples,
        }
    }

    ghost use Rattle.std.specs.Prelude.{◌*◌, length};
    ghost use Rattle.page_picture.specs.Page.{IsPageView, IsShaped, IsRow, page_sample_at};

    /// The number of columns, 1 to 16,384.
    pub fn width(&self) -> u32
        ensures { result ≡ self.now.width }
    {
        self.width
    }

    /// The number of rows, 1 to 16,384.
    pub fn height(&self) -> u32
        ensures { result ≡ self.now.height }
    {
        self.height
    }

    /// The dots per inch, 1 to 1,200.
    pub fn dpi(&self) -> u32
        ensures value { result ≡ self.now.dpi }
        ensures limits { IsPageView self.now }
    {
        self.dpi
    }

    /// The sample of channel `k` (0 red, 1 green, 2 blue) at column `x` of row `y`, from the top left, which must lie on the
    /// page.
    pub fn at(&self, x: u32, y: u32, k: u32) -> u16
        requires column { x < self.now.width }
        requires row { y < self.now.height }
        requires channel { k < 3 }
        ensures { result ≡ page_sample_at self.now x y k }
    {
        let place = y as usize * self.width as usize + x as usize;
        self.samples[place * 3 + k as usize]
    }

    /// The samples of row `y` from the top, three for each place from the left.
    pub fn row(&self, y: u32) -> &[u16]
        requires { y < self.now.height }
        ensures size { length result.now ≡ 3 * self.now.width }
        ensures row { IsRow self.now y result.now }
    {
        let size = 3 * self.width as usize;
        let start = y as usize * size;
        &self.samples[start..start + size]
    }
}

ghost use Rattle.std.specs.Prelude.{◌≤◌, ◌<◌, ◌*◌, ◌/◌, ◌↔◌, ℕ};
ghost use Rattle.page_picture.specs.Extent.{lines_over};

pub fn lines_show_the_page()
    /// The lines of a hand scanner are those that show the page.
    ensures { (height dpi resolution y : ℕ) → 1 ≤ dpi → 1 ≤ resolution →
        ((y < lines_over height dpi resolution) ↔ (y * dpi / resolution < height)) }
{}

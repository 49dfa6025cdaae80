ghost use Rattle.be_region.specs.Bands.{SamePixelsSameBands};

/// Regions of the same pixels are lists of the same rectangles, one by one.
pub fn same_pixels_same_bands()
    ensures { SamePixelsSameBands }
{}

//! Laws of images. The functions do nothing: their contracts are the laws.

ghost use Rattle.flat_link.specs.Existing.{ListsHaveImages};

/// Where nothing stands in the way of an image of objects, there is one.
pub fn lists_have_images()
    ensures { ListsHaveImages }
{}

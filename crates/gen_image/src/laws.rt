//! Laws of the generated object's image. The functions do nothing: their contracts are the laws.

ghost use Rattle.gen_image.specs.GeneratedImages.{GeneratedImagesAreKnown, GeneratedObjectsAreLinked};

/// Nothing stands in the way of the image of a generated object.
pub fn generated_objects_are_linked()
    ensures { GeneratedObjectsAreLinked }
{}

/// What stands in the image of a generated object.
pub fn generated_images_are_known()
    ensures { GeneratedImagesAreKnown }
{}

//! From the generated object to the images of both.

ghost use Rattle.std.specs.Prelude.{◌≡◌, [], ◌∷◌, IfOk, IsTrue};
ghost use Rattle.elf_model.specs.declared.refusals.Spot.{Spot};
ghost use Rattle.elf_model.specs.Objects.{is_within};
ghost use Rattle.thumb_table.specs.LinkFaults.{IsLinkRefusal};
ghost use Rattle.thumb_table.specs.Images.{IsImage};
ghost use Rattle.sim_relation.specs.Hardened.{Hardened as AreHardened};
ghost use Rattle.gen_image.specs.GeneratedImages.{placement};
ghost use Rattle.make_run.specs.MakeSteps.{IsGenerated, IsMadeOf};

use elf_model::{Deny, Limit, Object};
use flat_link::link;
use gen_flow::generated_flows_are_recovered;
use gen_hardened::{
    generated_flows_are_live, generated_points_have_scratch, generated_units_are_laid,
};
use gen_image::generated_objects_are_linked;
use harden_core::{Hardened, Setting, harden};
use sim_objects::laws::paired_list_hardens;
use std::alloc::{AllocError, Global};
use thumb_table::{Image, Placement};

/// Each instruction stands twice, and functions have four results.
const SETTING: Setting = Setting {
    copies: 2,
    results: 4,
};

/// Code from 0x8000 on, and the stack behind the room for it.
pub(crate) const PLACEMENT: Placement = Placement {
    base: 0x8000,
    room: 524_288,
    stack: 65_536,
};

/// The hardened form of a generated object, which nothing refuses.
pub(crate) fn hardened_of(alloc: Global, o: &Object) -> Result<Hardened, AllocError>
    requires generated { IsGenerated o.now }
    requires within { IsTrue (is_within o.now Limit.INPUT) }
    ensures { IfOk result (IsMadeOf o.now) }
{
    generated_flows_are_recovered();
    generated_flows_are_live();
    generated_points_have_scratch();
    generated_units_are_laid();
    match harden(alloc, o, &SETTING) {
        Ok(hardened) => Ok(hardened),
        Err(Deny::NoMemory) => Err(AllocError),
        Err(Deny::Refused(_)) => unreachable!(),
    }
}

/// What is promised of a hardened object.
pub(crate) fn is_hardened(o: &Object, h: &Hardened)
    requires generated { IsGenerated o.now }
    requires made { IsMadeOf o.now h.now }
    ensures { AreHardened (o.now ∷ []) (h.now.object ∷ []) h.now.factor }
{
    let objects = std::slice::from_ref(o);
    let outputs = std::slice::from_ref(&h.object);
    paired_list_hardens(objects, outputs, h.factor);
}

/// The image of an object that nothing refuses to link.
fn image_of(alloc: Global, o: &Object) -> Result<Image, AllocError>
    requires within { IsTrue (is_within o.now Limit.ANY) }
    requires linked { (spot : Spot) → ¬ IsLinkRefusal (o.now ∷ []) placement spot }
    ensures { IfOk result (IsImage (o.now ∷ []) placement) }
{
    match link(alloc, std::slice::from_ref(o), &PLACEMENT) {
        Ok(image) => Ok(image),
        Err(Deny::NoMemory) => Err(AllocError),
        Err(Deny::Refused(_)) => unreachable!(),
    }
}

/// The image of a generated object.
pub(crate) fn plain_image(alloc: Global, o: &Object) -> Result<Image, AllocError>
    requires generated { IsGenerated o.now }
    requires within { IsTrue (is_within o.now Limit.INPUT) }
    ensures { IfOk result (IsImage (o.now ∷ []) placement) }
{
    generated_objects_are_linked();
    image_of(alloc, o)
}

/// The image of its hardened form.
pub(crate) fn hard_image(
    alloc: Global,
    o: &Object,
    h: &Hardened,
    plain: &Image,
) -> Result<Image, AllocError>
    requires generated { IsGenerated o.now }
    requires made { IsMadeOf o.now h.now }
    requires image { IsImage (o.now ∷ []) placement plain.now }
    ensures { IfOk result (IsImage (h.now.object ∷ []) placement) }
{
    is_hardened(o, h);
    h.object.sound();
    image_of(alloc, &h.object)
}

//! Laws of the charts of paired objects. The functions make nothing: their contracts are the laws.

ghost use Rattle.std.specs.Prelude.{◌≤◌};
ghost use Rattle.sim_relation.specs.Hardened.{Hardened};
ghost use Rattle.sim_objects.specs.Answering.{PairsAnswer};
ghost use Rattle.sim_objects.specs.Apart.{PointsEndApart, PointsLieLow};
ghost use Rattle.sim_objects.specs.Beginning.{CallsBegin, MemoriesMeet, NamesEnter};
ghost use Rattle.sim_objects.specs.Even.{PlacesAreEven};
ghost use Rattle.sim_objects.specs.Existing.{ListsHaveCharts};
ghost use Rattle.sim_objects.specs.Exits.{NothingAtExit};
ghost use Rattle.sim_objects.specs.Following.{UnitsFollow};
ghost use Rattle.sim_objects.specs.Going.{PairsAreLinked, PointsGoOn};
ghost use Rattle.sim_objects.specs.Growth.{PairsAreShort};
ghost use Rattle.sim_objects.specs.Harden.{ListsHarden};
ghost use Rattle.sim_objects.specs.Hardening.{ListsEndAlike};
ghost use Rattle.sim_objects.specs.HavingMaps.{PairsHaveMaps};
ghost use Rattle.sim_objects.specs.Linking.{ListsAreLinked};
ghost use Rattle.sim_objects.specs.Living.{PointsLive, PointsSpare};
ghost use Rattle.sim_objects.specs.Mapping.{ChartsFollowMaps};
ghost use Rattle.sim_objects.specs.Meeting.{UnitsMeet};
ghost use Rattle.sim_objects.specs.Moving.{EntriesAreCharted, LinksEnter, MovesAreCharted};
ghost use Rattle.sim_objects.specs.PairedLists.{ArePairedOneByOne, PairedListsHarden};
ghost use Rattle.sim_objects.specs.Skipping.{AllMaySkip, UnitsKeepOut};
ghost use Rattle.sim_objects.specs.Standing.{ChartsHavePoints, PointsStand};
ghost use Rattle.sim_objects.specs.StandingUnits.{UnitsStand};
ghost use Rattle.sim_objects.specs.Together.{UnitsAreLinked};
ghost use Rattle.sim_objects.specs.Working.{UnitsWork};

use crate::given::{are_objects, have_bytes};
use elf_model::Object;

/// Lists of pairs with images have a chart.
pub fn lists_have_charts()
    ensures { ListsHaveCharts }
{}

/// No two points of a chart end at one address, so what stands for a return address is determined.
pub fn points_end_apart()
    ensures { PointsEndApart }
{}

/// Points and units lie below the end of images.
pub fn points_lie_low()
    ensures { PointsLieLow }
{}

/// The chart has the points of each object's flow.
pub fn charts_have_points()
    ensures { ChartsHavePoints }
{}

/// The instruction of each point stands in the plain image.
pub fn points_stand()
    ensures { PointsStand }
{}

/// Nothing is fetched at the end of the whole call.
pub fn nothing_at_exit()
    ensures { NothingAtExit }
{}

/// What is live at the points is closed as a chart asks.
pub fn points_live()
    ensures { PointsLive }
{}

/// Their units lose nothing but what is dead behind them.
pub fn points_spare()
    ensures { PointsSpare }
{}

/// A point's next point stands behind it, and its unit where the point's ends.
pub fn units_follow()
    ensures { UnitsFollow }
{}

/// A unit works where it stands in the hardened image, linked.
pub fn units_work()
    ensures { UnitsWork }
{}

/// Points and units stand at even addresses.
pub fn places_are_even()
    ensures { PlacesAreEven }
{}

/// Where places are even, control goes on as in the chart, and units stand in the hardened image with what makes an
/// ordinary step alike, the two images are linked unit by unit.
pub fn lists_are_linked()
    ensures { ListsAreLinked }
{}

/// Where a point of either list went, the chart has it with its unit.
pub fn moves_are_charted()
    ensures { MovesAreCharted }
{}

/// Where the flow of an object has an entry, so has the chart.
pub fn entries_are_charted()
    ensures { EntriesAreCharted }
{}

/// An address of code that linking makes in the plain image is an entry's, and what is taken for it that of the entry's unit.
pub fn links_enter()
    ensures { LinksEnter }
{}

/// What linking puts at a unit makes an ordinary step at its point alike.
pub fn units_meet()
    ensures { UnitsMeet }
{}

/// The two lists answer each other, as the laws on two images ask.
pub fn pairs_answer()
    ensures { PairsAnswer }
{}

/// Each unit stands in the hardened image, with what linking puts there.
pub fn units_stand()
    ensures { UnitsStand }
{}

/// Units in which no step may be skipped keep out of the addresses at which steps may be.
pub fn units_keep_out()
    ensures { UnitsKeepOut }
{}

/// Where all units may be skipped, steps may be skipped everywhere.
pub fn all_may_skip()
    ensures { AllMaySkip }
{}

/// Where the chart goes as control does and linking meets it, the units of a chart are linked.
pub fn units_are_linked()
    ensures { UnitsAreLinked }
{}

/// A name that can be called is that of an entry of the chart.
pub fn names_enter()
    ensures { NamesEnter }
{}

/// Runs on both images begin with memories that are the same.
pub fn memories_meet()
    ensures { MemoriesMeet }
{}

/// Calls of names start alike in both images.
pub fn calls_begin()
    ensures { CallsBegin }
{}

/// A hardened object has its map.
pub fn pairs_have_maps()
    ensures { PairsHaveMaps }
{}

/// Control goes on in a chart as it does in the plain image.
pub fn points_go_on()
    ensures { PointsGoOn }
{}

/// The images of two lists of pairs are linked unit by unit.
pub fn pairs_are_linked()
    ensures { PairsAreLinked }
{}

/// The maps of the hardened objects take each entry and return address to where the chart does.
pub fn charts_follow_maps()
    ensures { ChartsFollowMaps }
{}

/// Calls of two lists of pairs end alike under their maps.
pub fn lists_end_alike()
    ensures { ListsEndAlike }
{}

/// No code section of a hardened object is longer than 32 times its plain one, for two copies.
pub fn pairs_are_short()
    ensures { PairsAreShort }
{}

/// Two lists of pairs for two copies are hardened, as the theorem says it, where the hardened objects have
/// their maps.
pub fn lists_harden()
    ensures { ListsHarden }
{}

/// So two lists of objects that are paired one by one, each with a factor of at most F, are hardened.
pub fn paired_lists_harden()
    ensures { PairedListsHarden }
{}

/// The theorem on two lists of objects: those that are paired with a list, one by one, are the list, hardened.
pub fn paired_list_hardens(plain: &[Object], hard: &[Object], factor: u32)
    requires low { 1 ≤ factor }
    requires high { factor ≤ 16 }
    requires paired { ArePairedOneByOne plain.now hard.now factor }
    ensures { Hardened plain.now hard.now factor }
{
    are_objects(plain);
    are_objects(hard);
    have_bytes(hard);
}

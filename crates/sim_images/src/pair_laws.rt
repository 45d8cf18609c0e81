//! Laws of the images of two lists of objects that answer each other. The functions do nothing: their contracts are the laws.

ghost use Rattle.sim_images.specs.PairLaws.{DataMeets, DataStays, EntriesBack, EntriesMeet, HaveImage, NamesMeet, PointsMeet, ValuesMeet};

/// Data stands at the same addresses in both images.
pub fn data_stays()
    ensures { DataStays }
{}

/// A symbol and its counterpart stand for counterparts.
pub fn names_meet()
    ensures { NamesMeet }
{}

/// Two relocations that answer each other come to one number, or to a point's address and its place.
pub fn values_meet()
    ensures { ValuesMeet }
{}

/// Bytes of data are the same up to addresses of code.
pub fn data_meets()
    ensures { DataMeets }
{}

/// A name that can be called is called at its point's place.
pub fn entries_meet()
    ensures { EntriesMeet }
{}

/// No other name can be called.
pub fn entries_come_back()
    ensures { EntriesBack }
{}

/// Where the plain objects can be linked, so can the others, or their code is longer than the room.
pub fn answers_have_images()
    ensures { HaveImage }
{}

/// The plain image has a point's instruction, the hardened one its unit at its place.
pub fn points_meet()
    ensures { PointsMeet }
{}

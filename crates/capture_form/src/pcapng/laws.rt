//! Laws of the pcapng form, apart from how it is read. These functions do nothing when they run: each carries the law that
//! it ensures.
ghost use Rattle.capture_form.specs.SectionLaws.{CutHasFirst, BlockStays, ReadsBack};

/// The frames of a capture that was cut anywhere are the first ones of the whole capture's.
pub fn cut_has_first()
    ensures { CutHasFirst }
{}

/// A block stays one, whatever follows, so that a capture can be read part by part.
pub fn block_stays()
    ensures { BlockStays }
{}

/// What is written reads back, whole: any sections, each in its own order, with interfaces of any links and units.
pub fn reads_back()
    ensures { ReadsBack }
{}

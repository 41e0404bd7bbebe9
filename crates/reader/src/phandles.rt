// The phandles of the features that were read so far.
ghost use Rattle.std.specs.Prelude.{◌≡◌, ◌≤◌};
ghost use Rattle.positions.specs.Below.{first_that};
ghost use Rattle.record.specs.Record.{most_features};
ghost use Rattle.feature.specs.Phandles.{is_at};

use feature::carrier_below;
use record::MOST_FEATURES;

// What is noted of the phandles of the first features, `count` of them.
#[derive(Drop)]
pub(crate) struct Phandles<'a> {
    pub(crate) noted: &'a [Option<u32>; MOST_FEATURES],
    pub(crate) count: usize,
    ghost few: { count ≤ most_features },
}

impl Phandles<'_> {
    // The position of the first feature that carries a phandle, if there is one.
    pub(crate) fn carrier(&self, phandle: u32) -> Option<usize>
        ensures { result ≡ first_that self.now.count (is_at self.now.noted.now phandle) }
    {
        carrier_below(self.noted, self.count, phandle)
    }
}

// The tables that the properties of a CPU node hold, each from the bytes of a value.
ghost use Rattle.std.specs.Prelude.{◌≡◌};
ghost use Rattle.sizes.specs.Sizes.{page_sizes, segment_sizes};
ghost use Rattle.segments.specs.Segments.{segment_pages};
ghost use Rattle.radix.specs.Radix.{radix_encodings};
ghost use Rattle.attributes.specs.Attributes.{pa_features, pi_features, bus_frequency};
ghost use Rattle.answers.specs.Answers.{sizes_outcome_c, segments_outcome_c, radix_outcome_c, pa_outcome_c, pi_outcome_c, bus_outcome_c};

use answers::{
    YebkuzanBusFrequency, YebkuzanPaFeatures, YebkuzanPiFeatures, YebkuzanRadixEncodings,
    YebkuzanSegments, YebkuzanSizes,
};

// The value of `ibm,processor-page-sizes`: 11, 8, then cell by cell 12, 19.
pub fn yebkuzan_page_sizes(value: &[u8]) -> YebkuzanSizes
    ensures { sizes_outcome_c result ≡ page_sizes value.now }
{
    sizes::page_sizes(value).into()
}

// The value of `ibm,processor-segment-sizes`: 11, 8, then cell by cell 12, 19; 11 where no cell is a size.
pub fn yebkuzan_segment_sizes(value: &[u8]) -> YebkuzanSizes
    ensures { sizes_outcome_c result ≡ segment_sizes value.now }
{
    sizes::segment_sizes(value).into()
}

// The value of `ibm,segment-page-sizes`: 11 for no bytes; descriptor by descriptor 8, 11, 12, 8, 11, 12.
pub fn yebkuzan_segment_page_sizes(value: &[u8]) -> YebkuzanSegments
    ensures { segments_outcome_c result ≡ segment_pages value.now }
{
    segments::segment_page_sizes(value).into()
}

// The value of `ibm,processor-radix-AP-encodings`: 11, 8, then cell by cell 12, 19.
pub fn yebkuzan_radix_encodings(value: &[u8]) -> YebkuzanRadixEncodings
    ensures { radix_outcome_c result ≡ radix_encodings value.now }
{
    radix::radix_encodings(value).into()
}

// The value of `ibm,pa-features`, in an edition: 15 for an edition other than the two; 11 for no bytes; descriptor by descriptor 11, 12, 11;
// 10; 9.
pub fn yebkuzan_pa_features(value: &[u8], edition: u32) -> YebkuzanPaFeatures
    ensures { pa_outcome_c result ≡ pa_features edition value.now }
{
    attributes::pa_features(value, edition).into()
}

// The value of `ibm,pi-features`: as for `ibm,pa-features`, without an edition.
pub fn yebkuzan_pi_features(value: &[u8]) -> YebkuzanPiFeatures
    ensures { pi_outcome_c result ≡ pi_features value.now }
{
    attributes::pi_features(value).into()
}

// The value of `ibm,extended-bus-frequency`: 11.
pub fn yebkuzan_bus_frequency(value: &[u8]) -> YebkuzanBusFrequency
    ensures { bus_outcome_c result ≡ bus_frequency value.now }
{
    attributes::bus_frequency(value).into()
}

// Lists of strings.
ghost use Rattle.std.specs.Prelude.{◌≡◌};
ghost use Rattle.stringlist.specs.StringList.{string_place};
ghost use Rattle.answers.specs.Answers.{string_place_outcome_c, place_outcome};

use answers::YebkuzanStringPlace;

// At which place of a list a string first stands, counted from 0: 10.
pub fn yebkuzan_string_place(list: &[u8], text: &[u8]) -> YebkuzanStringPlace
    ensures { string_place_outcome_c result ≡ place_outcome (string_place list.now text.now) }
{
    stringlist::string_place(list, text).into()
}

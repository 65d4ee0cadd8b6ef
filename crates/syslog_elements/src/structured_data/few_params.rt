//! The first parameters of an element, noted while the element is recognised.
ghost use Rattle.std.specs.Prelude.{◌≡◌, ◌≤◌, length};

use super::recognised::Element;
use super::visit::ParamNotes;

/// How many parameters of an element are noted, so that they need no second walk. Space for them is cleared once for
/// each list, which takes four instructions a parameter.
const NOTED: usize = 16;

/// The first sixteen parameters of an element, noted while the element is recognised.
#[derive(Drop)]
pub struct FewParams<'a> {
    params: [(&'a str, &'a str); 16],
    count: usize,
    ghost within: { count ≤ 16 },
    ghost sized: { length params ≡ 16 },
}

impl<'a> FewParams<'a> {
    ghost use Rattle.std.specs.Prelude.{◌<◌, MatchOption, map};
    ghost use Rattle.syslog_elements.specs.Words.{shown, HasNoted, param_value, element_seen};

    /// Returns the parameters of the element if they were all noted; none if the element has more than sixteen.
    pub fn all_of(&self, element: &Element<'a>) -> Option<&[(&'a str, &'a str)]>
        requires { HasNoted self.now (element_seen element.now).params }
        ensures { MatchOption result (16 < length (element_seen element.now).params)
            (λ ps. map (param_value (λ s. shown s)) ps.now ≡ (element_seen element.now).params) }
    {
        if self.count < element.params_len() {
            return None;
        }
        Some(&self.params[..self.count])
    }
}

impl<'a> ParamNotes<'a> for FewParams<'a> {
    ghost use Rattle.syslog_elements.specs.Words.{HasNoted};

    ghost noted = { λ notes ps. HasNoted notes ps };

    #[inline(always)]
    fn new() -> FewParams<'a> {
        FewParams {
            params: [("", ""); NOTED],
            count: 0,
        }
    }

    fn clear(&mut self) {
        self.count = 0;
    }

    #[inline(always)]
    fn push(&mut self, name: &'a str, value: &'a str) {
        if self.count < NOTED {
            self.params[self.count] = (name, value);
            self.count += 1;
        }
    }
}

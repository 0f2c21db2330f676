//! What a toxic is called, what its attributes are called, may be and are, when it lets chunks pass, and what it does at most.
ghost use Rattle.std.specs.Prelude.{◌≡◌};
ghost use Rattle.std.specs.List.{list_all, zip};
ghost use Rattle.tox_defs.specs.DescriptionInside.{description_view};
ghost use Rattle.tox_defs.specs.toxics.Ranges.{are_in, is_in};

use crate::attributes::attribute::Attribute;
use crate::attributes::effect::Effect;
use crate::attributes::values::MAX_ATTRIBUTES;
use crate::attributes::window::Window;
use arrayvec::ArrayVec;

/// The name of a toxic's type, what it does in a line, its attributes and their values in order, when it lets chunks pass, and what is known
/// of what it does.
#[derive(Drop)]
pub(crate) struct Description {
    pub(crate) name: &'static str,
    pub(crate) words: &'static str,
    pub(crate) attributes: &'static [Attribute],
    pub(crate) values: ArrayVec<u64, MAX_ATTRIBUTES>,
    pub(crate) window: Window,
    pub(crate) effect: Effect,
}

impl Description {
    /// Whether each value is in the range of its attribute.
    pub(crate) fn is_within(&self) -> bool
        ensures { result
            ≡ are_in (description_view self.now).limits (description_view self.now).values }
    {
        are_in(self.attributes, &self.values)
    }
}

fn are_in(attributes: &[Attribute], values: &[u64]) -> bool
    ensures { result
        ≡ list_all (λ pair. is_in pair.0.limits pair.1) (zip attributes.now values.now) }
{
    attributes
        .iter()
        .zip(values)
        .all(|(attribute, value)| attribute.limits.has(*value))
}

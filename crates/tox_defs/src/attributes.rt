//! The attributes of a toxic by their names: what a text or a file tells of a toxic.
ghost use Rattle.std.specs.Prelude.{◌≡◌, ◌≤◌, ◌↔◌, None, Some, IsOk, IfErr, IfOk, length, map};
ghost use Rattle.std.specs.List.{list_any};
ghost use Rattle.std.specs.Str.{bytes_eq};
ghost use Rattle.tox_defs.specs.Flow.{toxic_effect, toxic_from, toxic_until};
ghost use Rattle.tox_defs.specs.Toxic.{IsInRange, attributes_of, checked, limits_of, name_of, toxic_fault, toxic_named, values_of, with_values};

pub(crate) mod attribute;
pub(crate) mod description;
pub(crate) mod effect;
pub(crate) mod limits;
pub(crate) mod unit;
pub(crate) mod values;
pub(crate) mod window;

use crate::attributes::attribute::Attribute;
use crate::attributes::effect::Effect;
use crate::attributes::values::MAX_ATTRIBUTES;
use crate::attributes::window::Window;
use crate::fault::ToxicFault;
use crate::toxic::Toxic;
use arrayvec::ArrayVec;

impl Toxic {
    /// The toxic whose type has this name in texts and files, with 0 for each attribute. [`Toxic::check`] may refuse it.
    pub fn of_name(name: &str) -> Option<Toxic>
        ensures { result ≡ toxic_named name.now }
    {
        Toxic::EACH_TYPE
            .iter()
            .copied()
            .find(|toxic| toxic.name() == name)
    }

    /// The name of the type in texts and files.
    pub fn name(&self) -> &'static str
        ensures { result.now ≡ name_of self.now }
    {
        self.description().name
    }

    /// What the type does, in a line.
    pub fn words(&self) -> &'static str {
        self.description().words
    }

    /// The attributes, at most [`MAX_ATTRIBUTES`], in their order.
    pub fn attributes(&self) -> &'static [Attribute]
        ensures names { map (λ attribute. attribute.name.now) result.now ≡ attributes_of self.now }
        ensures limits { map (λ attribute. attribute.limits) result.now ≡ limits_of self.now }
        ensures few { length result.now ≤ 5 }
    {
        self.description().attributes
    }

    /// Whether the toxic has an attribute of this name.
    pub fn has_attribute(&self, name: &str) -> bool
        ensures { result ≡ list_any
            (λ attribute. bytes_eq attribute name.now) (attributes_of self.now) }
    {
        self.attributes()
            .iter()
            .any(|attribute| attribute.name == name)
    }

    /// The values of the attributes, in the order of [`Toxic::attributes`].
    pub fn values(&self) -> ArrayVec<u64, MAX_ATTRIBUTES>
        ensures values { result.items ≡ values_of self.now }
        ensures all { length result.items ≡ length (attributes_of self.now) }
    {
        self.description().values
    }

    /// The time, in milliseconds, before `from` or from `until` on the toxic lets chunks pass. With 0 it never does.
    pub fn window(&self) -> Window
        ensures { (result.from ≡ toxic_from self.now) × (result.until ≡ toxic_until self.now) }
    {
        self.description().window
    }

    /// What is known of what the toxic does, whatever arrives.
    pub fn effect(&self) -> Effect
        ensures { result ≡ toxic_effect self.now }
    {
        self.description().effect
    }

    /// The toxic of the same type with these values of its attributes, in their order. Values that are
    /// absent are 0, and those past the last attribute are ignored.
    ///
    /// Fails as [`Toxic::check`] does, also if a value is too large for the attribute's type.
    pub fn with_values(&self, values: &[u64]) -> Result<Toxic, ToxicFault>
        ensures value { result ≡ checked (with_values self.now values.now) }
        ensures in_range { IfOk result IsInRange }
    {
        let toxic = self.saturated(values);
        toxic.check()?;
        Ok(toxic)
    }

    /// Whether the attributes are in their ranges: first `OutOfRange`, then `Variation`.
    pub fn check(&self) -> Result<(), ToxicFault>
        ensures ok { IsOk result ↔ (toxic_fault self.now ≡ None) }
        ensures fault { IfErr result (λ e. toxic_fault self.now ≡ Some e) }
    {
        let description = self.description();
        if !description.is_within() {
            return Err(ToxicFault::OutOfRange);
        }
        if self.is_varied_too_much() {
            return Err(ToxicFault::Variation);
        }
        Ok(())
    }
}

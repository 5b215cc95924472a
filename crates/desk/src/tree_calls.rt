// The calls that ask the tree: find, recipe, judge.
use crate::calls::Desk;
use crate::fault::Fault;
use judge::Judge;
use register::kind::Kind;
use register::parameter::ParameterKind;
use register::register::Register;
use script::answer::WordText;
use script::call::{Call, number, part};
use std::alloc::AllocError;
use std::fmt;

// `MODULE KIND NAME`, taken apart.
fn read_find(rest: &[u8]) -> Option<(u16, Kind, &[u8])> {
    let Call { name, rest } = part(rest);
    let module = number(name)?;
    let Call { name, rest } = part(rest?);
    let kind = u8::try_from(number(name)?).ok()?;
    Some((module, Kind::try_from(kind).ok()?, rest?))
}

// `PATTERN TEXT`, taken apart.
fn read_judge(rest: &[u8]) -> Option<(u8, &[u8])> {
    let Call { name, rest } = part(rest);
    Some((u8::try_from(number(name)?).ok()?, rest?))
}

// Kept: the words are those of this answer alone, so a match here is plainer than a type that wraps a kind to print it.
fn kind_name(kind: ParameterKind) -> &'static str {
    match kind {
        ParameterKind::Singular => " | singular",
        ParameterKind::Plus => " | plus",
        ParameterKind::Star => " | star",
    }
}

fn push_if(out: &mut String, name: &str, stands: bool) -> Result<(), AllocError> {
    if stands {
        out.push_str(name)?;
    }
    Ok(())
}

fn push_value<T: fmt::Display + Copy>(
    out: &mut String,
    name: &str,
    value: Option<T>,
) -> Result<(), AllocError> {
    if let Some(value) = value {
        out.push_str(name)?;
        out.write(value).or(Err(AllocError))?;
    }
    Ok(())
}

fn push_text(out: &mut String, name: &str, text: Option<&[u8]>) -> Result<(), AllocError> {
    push_value(out, name, text.map(|word| WordText { word }))
}

fn push_parameter<R: Register>(
    out: &mut String,
    register: &R,
    recipe: u16,
    place: usize,
) -> Result<(), AllocError> {
    let Some(parameter) = register.parameter(recipe, place) else {
        return Ok(());
    };
    out.push_str(kind_name(parameter.kind))?;
    push_if(out, " flag", parameter.flag)?;
    push_if(out, " multiple", parameter.multiple)?;
    push_if(out, " value", parameter.value)?;
    push_text(out, " default=", register.default_text(recipe, place))?;
    push_text(out, " long=", register.long_text(recipe, place))?;
    push_value(out, " letter=", parameter.letter)?;
    push_value(out, " min=", parameter.min)?;
    push_value(out, " max=", parameter.max)?;
    push_value(out, " pattern=", parameter.pattern)
}

impl<R: Register, J: Judge> Desk<'_, R, J> {
    pub fn find(&self, rest: &[u8]) -> Result<String, Fault> {
        let (module, kind, name) = read_find(rest).ok_or(Fault::Malformed(
            "find takes a module, a kind from 0 to 6 and a name",
        ))?;
        match self.register.find(module, kind, name) {
            Some(number) => Ok(format!(in self.heap; "found {number}")?),
            None => Ok(String::from_str(self.heap, "none")?),
        }
    }

    // `recipe`, the number of parameters, and each parameter behind a bar.
    pub fn recipe(&self, rest: &[u8]) -> Result<String, Fault> {
        let recipe = number(rest).ok_or(Fault::Malformed("recipe takes a number"))?;
        let count = self.register.count(recipe);
        let mut out = format!(in self.heap; "recipe {count}")?;
        for place in 0..count {
            push_parameter(&mut out, self.register, recipe, place)?;
        }
        Ok(out)
    }

    // Whether a text belongs to a pattern.
    pub fn judge(&self, rest: &[u8]) -> Result<String, Fault> {
        let (pattern, text) = read_judge(rest).ok_or(Fault::Malformed(
            "judge takes a pattern from 0 to 255 and a text",
        ))?;
        let answer = if self.judge.belongs(pattern, text) {
            "yes"
        } else {
            "no"
        };
        Ok(String::from_str(self.heap, answer)?)
    }
}

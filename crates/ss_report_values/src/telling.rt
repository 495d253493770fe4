// A text of values.

use crate::literals::Value;
use std::alloc::{AllocError, Global};

// How many values are told.
const MOST_VALUES: usize = 20;

/// A text of values under way, as `x = 3, b = True, o.p = null`; of many the first are told.
#[derive(Drop)]
pub(crate) struct Telling {
    pub(crate) alloc: Global,
    pub(crate) text: String,
    count: usize,
}

impl Telling {
    /// Nothing is told yet.
    pub(crate) fn new(alloc: Global) -> Self {
        Telling {
            alloc,
            text: String::new(alloc),
            count: 0,
        }
    }

    /// Whether no more is told.
    pub(crate) fn is_full(&self) -> bool {
        self.count > MOST_VALUES
    }

    /// Tells a value under a name, or that of a field after a name.
    pub(crate) fn tell(
        &mut self,
        name: &str,
        field: Option<&str>,
        value: Value,
    ) -> Result<(), AllocError> {
        if self.count < MOST_VALUES {
            push_told(&mut self.text, name, field, value)?;
        } else if self.count == MOST_VALUES {
            self.text.push_str(", ..")?;
        }
        self.count = self.count.saturating_add(1);
        Ok(())
    }
}

fn push_told(
    text: &mut String,
    name: &str,
    field: Option<&str>,
    value: Value,
) -> Result<(), AllocError> {
    if !text.is_empty() {
        text.push_str(", ")?;
    }
    match field {
        Some(field) => write!(text, "{name}.{field} = {value}"),
        None => write!(text, "{name} = {value}"),
    }
}

//! Tests of types, values, layouts and names.
#![tactic(auto)]

#[cfg(test)]
mod compute;
#[cfg(test)]
mod layout;
#[cfg(test)]
mod link;
#[cfg(test)]
mod meaning;
#[cfg(test)]
mod names;
#[cfg(test)]
mod overload;
#[cfg(test)]
mod values;

//! Drawings of small stations: as models of their formulas and back, and what searches keep.
//!
//! The crate has nothing but tests. `models` takes the drawing of a sheet and makes a model of the station's formula.
//! It tries the model on every clause and takes the drawing back. A further drawing is a line in `models` and a
//! picture in `pictures`. `forced` shows that a model has no truth value to spare, but one for each two nodes in two
//! columns. `room` shows when a formula has no room left, and how large formulas are. `searches` searches a station,
//! and compares what the solver keeps with what it wrote to the log. It fills rooms too, as `full_rooms` does those
//! of other searches. `counted` is the log. `reading` reads a case's texts, `trying` tries a model on clauses.
//! `stations` has the files and `pictures` the drawings.
//!
//! Runs of the program try the rest. When a law holds is in `cases/verify`, how many nodes moved in `cases/redraw`.
//! Which pairs a front has is in `cases/front`, what is best and certified in `cases/draw`. The crate uses
//! `model_decode`, `law_core`, `search_moved` and the crates that read a station and a sheet. So a change of a case
//! proves nothing of the formula or the searches again.
#![tactic(auto)]

#[cfg(test)]
mod counted;
#[cfg(test)]
mod forced;
#[cfg(test)]
mod full_rooms;
#[cfg(test)]
mod models;
#[cfg(test)]
mod pictures;
#[cfg(test)]
mod reading;
#[cfg(test)]
mod room;
#[cfg(test)]
mod searches;
#[cfg(test)]
mod stations;
#[cfg(test)]
mod trying;

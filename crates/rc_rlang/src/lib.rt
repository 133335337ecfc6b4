//! The region language, into which programs are translated: what it is and does, and how many points it
//! has. `specs/RegionCode` says what region code is, `specs/RegionRuns` what it does in any world,
//! `specs/RegionLive` which locals are live in it, `specs/RegionPoints` and `specs/RegionVariables` how
//! many points and region variables it has, and `specs/RegionFlow` what each point does to the region
//! variables and where it leads. `specs/RegionFits`, `specs/RegionKinds` and `specs/RegionNames` say when
//! its parts fit together: temporaries stand in order, types agree, and what is named is there;
//! `specs/IsRlang` is all of it, and an `Rlang` keeps it. `specs/Shapes` leads from the types of the code
//! to the definitions. `specs/Touches` says which points delete and what points do to locals,
//! `specs/LiveLists` which locals are listed at those that delete, `specs/LivePaths` the same by paths,
//! `specs/LiveMaps` what a map of such lists is, and `specs/Sites` which stores have checks, in either of
//! two orders. `specs/Points` counts a program's points on the program, and `specs/Variables` the region
//! variables of each of its functions; `points` counts the points of region code on the code.
#![tactic(auto)]

pub mod access;
pub mod code;
pub mod live_map;
pub mod order;
mod points;
pub mod rlang;
pub mod steps;

pub use points::{
    act_points, branch_points, change_points, code_points, points_behind, steps_points,
};

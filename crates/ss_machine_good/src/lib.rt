//! What holds along runs of the checked machine: what is known where code is reached stays true, frames go on in later stores, constructors give
//! their fields values. Every unfailed state is good, and no expression of non-null type gives null. No step of the program calls these functions:
//! each says one law over the definitions.
#![tactic(auto)]

mod constructors_laws;
mod frames_laws;
mod laws;
mod non_null_laws;
mod runs_laws;

pub use constructors_laws::{fields_hold_along, ready_goes_along, this_is_kept_along};
pub use frames_laws::{
    arrays_keep_frames, assignments_keep_frames, element_writes_keep_frames, ifs_keep_frames,
    later_goes_on, loops_keep_frames, packs_keep_frames, ready_keeps_frames, ready_leads_later,
    tests_keep_frames, unpacks_keep_frames, writes_keep_frames, writes_lead_later,
};
pub use laws::{
    arrays_keep_good, assigned_goes_along, assignment_keeps_assigned, assignment_keeps_frame,
    assignment_keeps_known, dispatch_finds_method, element_writes_keep_good,
    entered_frames_are_sound, entries_are_older, if_keeps_frame, instance_arguments_are_good,
    known_goes_along, loop_keeps_frame, non_null_is_never_null, objects_keep_good, pack_keeps_good,
    start_is_good, start_is_sound, static_arguments_are_good, test_keeps_frame, tests_say_so,
    unpack_keeps_good, wanted_values_fit, writes_keep_good,
};
pub use non_null_laws::non_null_never_gives_null;
pub use runs_laws::{start_has_good_stack, steps_keep_good_stacks, unfailed_states_are_good};

//! Deeds of movers and ports: chunks through their epochs, what movers read and wrote, and what steps of ports do to groups.
#![tactic(auto)]

//! The view of a layout, whose types and definitions are rt_view's. (Nets and devices come with cuts and channels.)
#![tactic(auto)]

mod view;

pub use rt_view::{Channel, Job, NetError, Shape, View};
pub use view::view_of;

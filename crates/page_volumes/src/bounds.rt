/// The most volumes of a group.
pub const MOST_VOLUMES: usize = 16;

// The focus of the choice: a level, and how often it was taken in a row.

#[derive(Debug, Clone, Copy, PartialEq, Eq, Default)]
pub struct FocusState {
    pub current_focus: Option<u32>,
    pub streak: u32,
}

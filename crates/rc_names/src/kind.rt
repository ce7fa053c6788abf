pub use rc_model::Kind;

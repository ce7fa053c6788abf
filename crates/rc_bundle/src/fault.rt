pub use rc_model::BundleFault;

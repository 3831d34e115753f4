// What the printing program prints of an image (document 01, The printing program): definitions (specs/), no code.
#![tactic(auto)]

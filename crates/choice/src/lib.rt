// Definitions and laws alone: a choice by a test, and the first question that is answered no; two laws of the library's types.
#![tactic(auto)]
